// The set itself. Its fields are its own: nothing but the calls changes them.
use rules::card::Card;
use rules::request::Condition;
use signalling::refusal::Refusal;

// A set, of its draw source `D`, the services `S` that it is asked for and its network plan `P`.
#[derive(Drop)]
pub struct Set<D, S, P> {
    pub(crate) card: Card,
    pub(crate) plan: P,
    pub(crate) condition: Condition<D, S>,
}

// A set that was not made: why, and the source and the plan, which go back to their owner.
#[derive(Drop)]
pub struct NotMade<D, P> {
    pub refusal: Refusal,
    pub source: D,
    pub plan: P,
}
