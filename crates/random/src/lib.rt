//! Random numbers from a seed, for programs that try many cases. The same seed gives the same numbers. The crate stands
//! on no other; `specs/States.antt` says which number follows which.
//!
//! - `Random::new`: the generator of a seed
//! - `below`: a number below a bound
//! - `coin`: true or false
#![tactic(auto)]

ghost use Rattle.std.specs.Prelude.{◌≡◌, ◌+◌, ◌<◌, ◌%◌, ◌^◌, ◌==◌, max, if◌then◌else◌};
ghost use Rattle.random.specs.States.{next_state, state_of};

// Half of its bits are set, so that small seeds begin far apart from 0.
const FAR: u64 = 0x9e37_79b9_7f4a_7c15;

/// A generator of random numbers (xorshift).
#[derive(Drop)]
pub struct Random {
    state: u64,
}

impl Random {
    /// The generator of a seed. Its state is never 0, from which no other number comes.
    pub fn new(seed: u64) -> Random
        ensures seeded { state_of result ≡ max ((seed + 11400714819323198485) % 2 ^ 64) 1 }
        ensures never_0 { 0 < state_of result }
    {
        Random {
            state: seed.wrapping_add(FAR).max(1),
        }
    }

    #[tactic(auto, unfolding(crate::specs::States::next_state))]
    fn number(&mut self) -> u64
        ensures number { result ≡ next_state (state_of self.old) }
        ensures state { state_of self.new ≡ next_state (state_of self.old) }
    {
        let a = self.state ^ self.state << 13;
        let b = a ^ a >> 7;
        self.state = b ^ b << 17;
        self.state
    }

    /// The next number, reduced below `bound`; 0 if no number is below it.
    pub fn below(&mut self, bound: u8) -> u8
        ensures number { result ≡ (if bound == 0 then 0 else next_state (state_of self.old) % bound) }
        ensures small { 0 < bound → result < bound }
        ensures state { state_of self.new ≡ next_state (state_of self.old) }
    {
        // below a u8, so nothing is cut off
        self.number().checked_rem(u64::from(bound)).unwrap_or(0) as u8
    }

    /// Whether the next number is even.
    pub fn coin(&mut self) -> bool
        ensures answer { result ≡ (next_state (state_of self.old) % 2 == 0) }
        ensures state { state_of self.new ≡ next_state (state_of self.old) }
    {
        self.number() % 2 == 0
    }
}
