//! What the machine itself throws.

ghost use Rattle.std.specs.Prelude.{◌≡◌};
ghost use Rattle.guest_model.specs.Exceptions.{name_of};

/// What the machine itself throws.
#[derive(Clone, Copy)]
pub enum Thrown {
    /// Null is used as an object.
    NullPointer,
    /// A number is divided by 0.
    Division,
    /// An array has no such place.
    Bounds,
    /// An array may not hold such an object.
    Item,
    /// An array is to have less than no items.
    Size,
    /// An object is not of the class that it is cast to.
    Cast,
    /// A monitor is left that is not held.
    Monitor,
    /// A thread is started again.
    SecondStart,
}

impl Thrown {
    /// The name of its class.
    pub fn name(self) -> &'static [u8]
        ensures { result.now ≡ name_of self }
    {
        match self {
            Thrown::NullPointer => b"java/lang/NullPointerException",
            Thrown::Division => b"java/lang/ArithmeticException",
            Thrown::Bounds => b"java/lang/ArrayIndexOutOfBoundsException",
            Thrown::Item => b"java/lang/ArrayStoreException",
            Thrown::Size => b"java/lang/NegativeArraySizeException",
            Thrown::Cast => b"java/lang/ClassCastException",
            Thrown::Monitor => b"java/lang/IllegalMonitorStateException",
            Thrown::SecondStart => b"java/lang/IllegalThreadStateException",
        }
    }
}
