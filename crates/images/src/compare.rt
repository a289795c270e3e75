// Whether stores and answers agree.
use record::Entry;
use store::Store;

// The two stores have the same term, vote, durable count and entries.
pub(crate) fn same_store<A: Store, B: Store>(a: &A, b: &B) -> bool {
    a.term() == b.term()
        && a.vote() == b.vote()
        && a.durable() == b.durable()
        && a.len() == b.len()
        && (1..=a.len()).all(|number| entry_at(a, number) == entry_at(b, number))
}

fn entry_at<S: Store>(store: &S, number: usize) -> Option<Entry> {
    store.entry(number).ok()
}
