// Tags, pads and refusals of the families on examples.
#![tactic(auto)]

use families::{Family, Mmh, MmhStar, Nh, Nhs, WidthError, prime_modulus};

#[cfg(test)]
mod tests {
    use super::*;
    use std::process::Abort;

    const HALF: u32 = 1 << 31;

    const P: u64 = 4_294_967_311;

    #[test]
    fn pairs(rt: HostRuntime) {
        let top = [u32::MAX; 2];
        assert_eq!(rt; Nh::tag(&[0, 0], &top), Ok(18_446_744_065_119_617_025));
        assert_eq!(rt; Nhs::tag(&[0, 0], &top), Ok(1));
        assert_eq!(rt; Nh::tag(&[0, 0], &[HALF, 1]), Ok(2_147_483_648));
        assert_eq!(rt;
            Nhs::tag(&[0, 0], &[HALF, 1]),
            Ok(18_446_744_071_562_067_968)
        );
    }

    #[test]
    fn products(rt: HostRuntime) {
        let top = [u32::MAX; 2];
        assert_eq!(rt; MmhStar::tag(&top, &top), Ok(512));
        assert_eq!(rt; Mmh::tag(&top, &top), Ok(287));
        let one = [65536, 0];
        assert_eq!(rt; MmhStar::tag(&one, &one), Ok(4_294_967_296));
        assert_eq!(rt; Mmh::tag(&one, &one), Ok(0));
    }

    // Two values of one key word at which two messages have one tag.
    #[test]
    fn nhs_collides_twice(rt: HostRuntime) {
        let low = [HALF - 1, 1];
        assert_eq!(rt; Nhs::tag(&low, &[0, 0]), Nhs::tag(&low, &[HALF, HALF]));
        let high = [HALF + 1, 1];
        assert_eq!(rt; Nhs::tag(&high, &[0, 0]), Nhs::tag(&high, &[HALF, HALF]));
        assert_ne!(rt;
            Nhs::tag(&[2, 1], &[0, 0]),
            Nhs::tag(&[2, 1], &[HALF, HALF])
        );
    }

    fn check_widths<F: Family>(rt: &impl Abort) {
        assert_eq!(rt; F::tag(&[1, 2], &[3]), Err(WidthError));
        assert_eq!(rt; F::tag(&[1], &[3]), Err(WidthError));
        assert_eq!(rt; F::tag(&[0; 34], &[0; 34]), Err(WidthError));
        assert_eq!(rt; F::tag(&[0; 32], &[0; 32]), Ok(0));
        assert_eq!(rt; F::tag(&[], &[]), Ok(0));
    }

    #[test]
    fn widths(rt: HostRuntime) {
        check_widths::<Nh>(&rt);
        check_widths::<Nhs>(&rt);
        check_widths::<MmhStar>(&rt);
        check_widths::<Mmh>(&rt);
    }

    #[test]
    fn pads(rt: HostRuntime) {
        let top = u64::MAX;
        assert_eq!(rt; Nh::add_pad(top, top), top - 1);
        assert_eq!(rt; Nhs::add_pad(top, top), top - 1);
        assert_eq!(rt; MmhStar::add_pad(top, top), 448);
        assert_eq!(rt; Mmh::add_pad(top, top), 4_294_967_294);
        assert_eq!(rt; MmhStar::add_pad(P - 1, 1), 0);
    }

    #[test]
    fn tags(rt: HostRuntime) {
        assert_eq!(rt; prime_modulus(), P);
        assert_eq!(rt; (MmhStar::is_tag(P - 1), MmhStar::is_tag(P)), (true, false));
        assert_eq!(rt;
            (Mmh::is_tag(4_294_967_295), Mmh::is_tag(4_294_967_296)),
            (true, false)
        );
        assert_eq!(rt; (Nh::is_tag(u64::MAX), Nhs::is_tag(u64::MAX)), (true, true));
    }

    #[test]
    fn counts(rt: HostRuntime) {
        assert_eq!(rt; (Nh::colliding_values(), Nhs::colliding_values()), (1, 2));
        assert_eq!(rt;
            (MmhStar::colliding_values(), Mmh::colliding_values()),
            (1, 6)
        );
    }
}
