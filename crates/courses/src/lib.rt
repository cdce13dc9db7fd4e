// The theorems about the whole listing. However the input comes and the output goes, what is written is the listing of all that
// was read. No code, but for the type that a program's answers have, which the theorems speak of.
#![tactic(auto)]

// Why a run stops before the input has ended and all of it is listed: a read failed, or a write did.
#[derive(Clone, Copy)]
pub enum Failure {
    Unread,
    Unwritten,
}
