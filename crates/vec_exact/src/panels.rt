// The panels of the cubed sphere.

/// A face of the cube that the sphere is projected on (the gnomonic cubed sphere). It is named by
/// the axis that leaves the cube there. The panels are numbered 1 to 6 in this order.
#[derive(Clone, Copy, Debug, PartialEq, Eq)]
pub enum Panel {
    PlusX,
    PlusY,
    MinusX,
    MinusY,
    PlusZ,
    MinusZ,
}
