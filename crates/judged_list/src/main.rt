//! The smallest program around the proved machine: judges a list of commands and prints the verdict.
#![tactic(auto)]

mod listed;

use nano_spec::Verdict;
use std::io;
use vox_geom::Memory;

fn main(rt: HostRuntime) -> io::Result<()> {
    match listed::judge_list(rt.alloc()) {
        Ok(Verdict::Accepted { energy, steps }) => {
            println!(rt; "ok energy {energy} steps {steps}")?;
        }
        Ok(Verdict::Refused(broken)) => {
            let rule = broken.rule.name();
            println!(rt;
                "broken step {} bot {} rule {rule}",
                broken.step, broken.bid
            )?;
        }
        Err(Memory) => return Err(io::Error::from(io::ErrorKind::OutOfMemory)),
    }
    Ok(())
}
