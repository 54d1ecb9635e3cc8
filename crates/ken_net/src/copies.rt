use ken_model::Octets;

// What is passed on of a packet at its own put.
#[derive(Drop)]
pub(crate) enum Copies {
    Nothing,
    One(Octets),
    Two(Octets, Octets),
}
