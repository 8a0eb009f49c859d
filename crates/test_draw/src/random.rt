// A linear congruential generator: the same numbers on every run.

ghost use Rattle.std.specs.Prelude.{◌≤◌, ◌-◌};

const MODULUS: u64 = 2147483648;

const FACTOR: u64 = 1103515245;

const STEP: u64 = 12345;

// The low bits of such a generator repeat soon, so they are left out.
const LOW: u64 = 65536;

#[derive(Drop)]
pub struct Random {
    state: u64,
}

impl Random {
    pub fn new(seed: u64) -> Random {
        Random { state: seed }
    }

    // The next number of the generator, below a bound, or 0.
    pub fn draw(&mut self, bound: usize) -> usize
        ensures { result ≤ bound - 1 }
    {
        self.state = (self.state % MODULUS * FACTOR + STEP) % MODULUS;
        let number = (self.state / LOW) as usize;
        number.checked_rem(bound).unwrap_or(0)
    }
}
