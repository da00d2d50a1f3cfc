// Numbers that look random from a fixed start: a linear congruence with modulus 2^31 - 1. For the programs `damage` and `trials`.
#![tactic(auto)]

ghost use Rattle.std.specs.Prelude.{◌<◌};

// The next state of the generator.
pub fn next(x: u64) -> u64
    ensures { result < 2147483647 }
{
    x % 2147483647 * 48271 % 2147483647
}

// A number below n, or 0 if there is none; k tells several draws of one state apart.
pub fn below(x: u64, k: u64, n: u64) -> u64
    ensures { 0 < n → result < n }
{
    if n == 0 {
        return 0;
    }
    let y = next(x % 2147483647 + k % 65536 * 26544 + 1);
    let z = y % 46337 * (y / 46337 + 7) + y;
    next(z) / 8 % n
}
