ghost use Rattle.std.specs.Prelude.{◌≡◌, ◌<◌, ◌+◌, ◌-◌, ◌^◌};

/// How many leaves stand under a node of this height.
pub fn width(height: u32) -> u64
    requires { height < 64 }
    ensures { result ≡ 2 ^ height }
{
    1 << height
}

/// How many leaves stand under each child of a node of this height.
pub fn half_width(height: u32) -> u64
    requires { 0 < height × height < 64 }
    ensures half { result ≡ 2 ^ (height - 1) }
    ensures whole { result + result ≡ 2 ^ height }
{
    1 << (height - 1)
}
