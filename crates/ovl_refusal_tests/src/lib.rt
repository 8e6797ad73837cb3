//! Tests of public calls that lack memory. A function here makes calls and says whether each gives
//! what it should; where one of them says that it is out of memory, the function is called again
//! with the same arguments, and then has memory. So it is seen that no call gives anything else
//! than its answer or out of memory, and that what it was lent is as it was. As the gate runs them
//! all calls have memory. `tests/program/refusals.py` runs each test again and again, with the first, the
//! second and each later request for memory refused, and no other.
#![tactic(auto)]

// What a call gives, the second time where it was out of memory.
#[cfg(test)]
macro_rules! again {
    ($call:expr, $want:pat) => {
        match $call {
            Err($want) => $call,
            answer => answer,
        }
    };
}

#[cfg(test)]
mod board;
#[cfg(test)]
mod checks;
#[cfg(test)]
mod commands;
#[cfg(test)]
mod inodes;
#[cfg(test)]
mod lookups;
#[cfg(test)]
mod manifests;
#[cfg(test)]
mod names;
#[cfg(test)]
mod rewrites;
#[cfg(test)]
mod samples;
#[cfg(test)]
mod words;
