//! The words on lists that the definitions of every crate share, and their laws. It has no code, stands on no crate and
//! promises nothing to a caller: definitions and proofs of other crates cite it.
//!
//! `specs/Lists.antt` has the words. `proofs/Members.antt` says what tests, filters and pairing off say of members,
//! `proofs/Firsts.antt` what holds of the first element that passes a test, `proofs/Onces.antt` what holds of lists
//! without repetition.
#![tactic(auto)]
