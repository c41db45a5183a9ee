// What each halfword means as a 16-bit instruction.

use rv_code::expand;

/// Prints the instruction of 32 bits that each halfword means, or `none`: a line for each, from 0 on.
pub fn print_halfwords(rt: &impl Print) -> anyhow::Result<()> {
    for halfword in 0..=u16::MAX {
        match expand(halfword) {
            Some(instruction) => println!(rt; "{instruction}")?,
            None => println!(rt; "none")?,
        }
    }
    Ok(())
}
