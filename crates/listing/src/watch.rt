use survey::Survey;

/// Is told how a list goes on. It is given nothing that it could change the list by.
pub trait Watch {
    /// This survey was read, and its list begins.
    fn begun(&mut self, survey: &Survey);

    /// A page was written; so many chains are written by now.
    fn written(&mut self, chains: u64);
}

/// Nobody watches.
#[derive(Clone, Copy, Debug)]
pub struct Unwatched;

impl Watch for Unwatched {
    fn begun(&mut self, _survey: &Survey) {}

    fn written(&mut self, _chains: u64) {}
}
