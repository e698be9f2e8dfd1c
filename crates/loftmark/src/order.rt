// The command line.
use crate::fault::Fault;
use families::FamilyName;
use std::env;

// The family and the label that the command line names.
pub fn read_order(rt: &HostRuntime) -> Result<(FamilyName, u32), Fault> {
    let mut words = env::args(rt)?;
    let _program = words.next();
    let (Some(family), Some(label), None) = (words.next(), words.next(), words.next()) else {
        return Err(Fault::Usage);
    };
    let family = family.as_str().parse::<FamilyName>()?;
    let label = label.as_str().parse().map_err(|_| Fault::BadLabel)?;
    Ok((family, label))
}
