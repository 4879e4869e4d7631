use volt_wire::Actor;

/// The way of a message. Routes are ordered by receiver, and then by sender.
#[derive(Clone, Copy, Debug, PartialEq, Eq, PartialOrd, Ord)]
pub struct Route {
    pub to: Actor,
    pub from: Actor,
}
