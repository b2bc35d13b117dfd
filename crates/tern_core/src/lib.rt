//! Three-valued logic: 0, 1 and unknown, with Kleene's operations and the order of information
//! (S. C. Kleene, Introduction to Metamathematics, section 64).
#![tactic(auto)]

pub mod laws;
mod tern;

pub use tern::{Tern, and, at_most, common, not, or, xor};

#[cfg(test)]
mod tests {
    use super::*;
    use std::test::Fail;

    const VALUES: [Tern; 3] = [Tern::Zero, Tern::One, Tern::Unknown];

    #[test]
    fn values_print_as_in_a_report(rt: HostRuntime) -> Result<(), Fail> {
        let alloc = rt.alloc();
        let mut text = String::new(alloc);
        for a in VALUES {
            text.push_str(format!(in alloc; "{a}")?.as_str())?;
        }
        assert_eq!(rt; text.as_str(), "01X");
        Ok(())
    }

    #[test]
    fn operations_have_kleenes_tables(rt: HostRuntime) -> Result<(), Fail> {
        let alloc = rt.alloc();
        let mut text = String::new(alloc);
        for a in VALUES {
            text.push_str(not(a).symbol())?;
            for b in VALUES {
                text.push_str(and(a, b).symbol())?;
                text.push_str(or(a, b).symbol())?;
                text.push_str(xor(a, b).symbol())?;
                text.push_str(common(a, b).symbol())?;
                text.push_str(if at_most(a, b) { "y" } else { "n" })?;
            }
        }
        assert_eq!(rt;
            text.as_str(),
            "10000y011Xn0XXXn0011Xn1101yX1XXnX0XXXyX1XXyXXXXy"
        );
        Ok(())
    }
}
