// What was handed in to be made into something, handed back, and why nothing is made of it.
#[derive(Drop)]
pub struct Refused<T, E> {
    pub given: T,
    pub refusal: E,
}
