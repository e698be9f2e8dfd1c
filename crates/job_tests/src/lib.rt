#![tactic(auto)]

// Examples of jobs, run.
#[cfg(test)]
mod tests {
    use families::{Family, MmhStar, Nh};
    use jobs::{CardError, OpenJob, TooLong, read_card, split_tag};
    use std::process::Abort;
    use std::test::Fail;

    // The root tag of a document under a card of ones.
    fn tag_under_ones<F: Family>(label: u32, document: &[u8]) -> Result<u64, Fail> {
        let mut job = OpenJob::<F>::open(&[1; 164], label)?;
        job.feed(document)?;
        Ok(job.close().root_tag())
    }

    // The tags of four jobs: no bytes with label 0 and 7, then with label 0 the byte 2 and the byte 0.
    fn check_under_ones<F: Family>(rt: &impl Abort, tags: [u64; 4]) -> Result<(), Fail> {
        assert_eq!(rt; tag_under_ones::<F>(0, &[])?, tags[0]);
        assert_eq!(rt; tag_under_ones::<F>(7, &[])?, tags[1]);
        assert_eq!(rt; tag_under_ones::<F>(0, &[2])?, tags[2]);
        assert_eq!(rt; tag_under_ones::<F>(0, &[0])?, tags[3]);
        Ok(())
    }

    #[test]
    fn card_of_ones(rt: HostRuntime) -> Result<(), Fail> {
        check_under_ones::<Nh>(&rt, [6, 13, 10, 8])?;
        check_under_ones::<MmhStar>(&rt, [0, 7, 3, 1])
    }

    #[test]
    fn cards_of_other_lengths(rt: HostRuntime) {
        assert!(rt; OpenJob::<Nh>::open(&[1; 163], 0).is_err());
        assert!(rt; OpenJob::<Nh>::open(&[1; 165], 0).is_err());
        assert_eq!(rt; read_card(&[1; 655]), Err(CardError));
        assert_eq!(rt; read_card(&[1; 660]), Err(CardError));
    }

    #[test]
    fn the_longest_document(rt: HostRuntime) -> Result<(), Fail> {
        let piece = [5u8; 65536];
        let mut job = OpenJob::<Nh>::open(&[1; 164], 3)?;
        // A repetition, and no count of places: as many times 65,536 bytes as a document may have.
        for _ in 0..128 {
            job.feed(&piece)?;
        }
        assert_eq!(rt; job.feed(&[9]), Err(TooLong));
        job.feed(&[])?;
        assert_eq!(rt; job.length(), 8_388_608);
        let closed = job.close();
        assert_eq!(rt; closed.length(), 8_388_608);
        assert_eq!(rt; closed.label(), 3);
        Ok(())
    }

    #[test]
    fn halves_of_a_tag(rt: HostRuntime) {
        assert_eq!(rt; split_tag(0x0000_0007_ffff_fffe), (0xffff_fffe, 7));
    }
}
