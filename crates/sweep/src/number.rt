// A number under way, place by place and the lowest first: each variable's value counts as much as all values of those before it.
ghost use Rattle.std.specs.Prelude.{◌≡◌, ◌+◌, ◌*◌, ◌<◌, ◌^◌};

// The number so far, and what the next place's value counts.
#[derive(Clone, Copy)]
pub struct Number {
    pub value: u32,
    pub stride: u32,
}

impl Number {
    pub const ZERO: Number = Number {
        value: 0,
        stride: 1,
    };

    // One place more: the value x of k.
    pub fn with_place(self, x: u8, k: u8) -> Number
        requires value_fits { self.value + x * self.stride < 2 ^ 32 }
        requires stride_fits { self.stride * k < 2 ^ 32 }
        ensures value { result.value ≡ self.value + x * self.stride }
        ensures stride { result.stride ≡ self.stride * k }
    {
        Number {
            value: self.value + u32::from(x) * self.stride,
            stride: self.stride * u32::from(k),
        }
    }
}
