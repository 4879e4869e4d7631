use crate::layout::Layout;

/// What a cluster is made of: its layout, and how many clients it serves, from 1 to 16.
#[derive(Clone, Copy, Debug, PartialEq, Eq)]
pub struct Deployment {
    pub layout: Layout,
    pub clients: u8,
}
