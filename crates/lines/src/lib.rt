// Lines: a fix or a fault as printed bytes, in a buffer that the caller lends.
#![tactic(auto)]

mod building;
mod printing;
mod refusals;

pub use printing::{print_fault, print_fix};
pub use refusals::{FaultLineRefusal, FixLineRefusal};

#[cfg(test)]
mod tests {
    use super::*;
    use records::{Fault, Fix};
    use settings::Setting;
    use std::test::Fail;

    #[test]
    fn a_fix_at_powers_of_ten(rt: HostRuntime) -> Result<(), Fail> {
        let fix = Fix {
            start: 0,
            count: 10,
            mean: 100,
        };
        let mut out = *b"............";
        let Ok(setting) = Setting::new(10, &[3, 4, 5]) else {
            return Err(Fail::new("no setting"));
        };
        assert_eq!(rt; print_fix(&setting, &fix, &mut out), Ok(9));
        assert!(rt; out == *b"0 10 100\n...");
        assert_eq!(rt;
            print_fix(&Setting::first(), &fix, &mut out),
            Err(FixLineRefusal::Outside)
        );
        Ok(())
    }

    #[test]
    fn a_fault_in_a_full_buffer(rt: HostRuntime) {
        let fault = Fault {
            code: 24,
            channel: 1,
            depth: 0,
            first: 7,
            second: 9,
        };
        let mut out = [0; 29];
        assert_eq!(rt; print_fault(&fault, &mut out), Ok(29));
        assert!(rt; out == *b"refused 24 channel 1 depth 0\n");
        assert_eq!(rt;
            print_fault(&fault, &mut out[1..]),
            Err(FaultLineRefusal::Short)
        );
    }
}
