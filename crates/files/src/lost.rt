// What is said where lines could not be written.
use std::io;

// Says once on standard error that lines were lost, if they were, with the system's reason.
pub fn told(rt: &(impl AllocGlobal + Eprint), written: io::Result<()>) -> io::Result<()> {
    let Err(error) = written else {
        return Ok(());
    };
    let told = format!(in rt.alloc(); "{error}")?;
    match told.as_str().split_once(" (os error ") {
        Some((reason, _)) => eprintln!(rt; "standard output: {reason}"),
        None => eprintln!(rt; "standard output: {told}"),
    }
}
