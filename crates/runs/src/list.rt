// A list of calls for two runs, with what each of them replies.
use indices::index::Index;
use refusals::refusal::Refusal;

// A step brings the length of its tray.
#[derive(Clone, Copy)]
pub enum Call<K> {
    Fetch {
        variable: usize,
        index: Index,
    },
    Put {
        variable: usize,
        index: Index,
        element: K,
    },
    Step {
        size: usize,
    },
    Rewind,
}

// What a call that is done tells: the element fetched, the number of the statement just done, or nothing more.
#[derive(Clone, Copy)]
pub enum Outcome<K> {
    Element(K),
    Statement(usize),
    Done,
}

// What a call replies: its outcome, or why it is refused.
pub type Reply<K> = Result<Outcome<K>, Refusal>;

#[derive(Clone, Copy)]
pub struct Entry<K> {
    pub call: Call<K>,
    pub left: Reply<K>,
    pub right: Reply<K>,
}

// Two stores.
#[derive(Drop)]
pub struct Pair<S, T> {
    pub left: S,
    pub right: T,
}
