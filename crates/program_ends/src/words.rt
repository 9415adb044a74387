use run_model::Misuse;
use std::env;
use std::io::ErrorKind;
use std::rt::Env;
use tool_words::WordsFault;

/// The words behind the program's name. Where one isn't UTF-8 none is known, so the command isn't either.
pub fn arguments<X: Env + AllocGlobal>(rt: &X) -> Result<Vec<String>, WordsFault> {
    let all = match env::args(rt) {
        Ok(all) => all,
        Err(error) if error.kind() == ErrorKind::OutOfMemory => return Err(WordsFault::Memory),
        Err(_) => return Err(WordsFault::Misuse(Misuse::Command)),
    };
    let mut words = Vec::new(rt.alloc());
    for word in all.skip(1) {
        words.push(word).map_err(|_| WordsFault::Memory)?;
    }
    Ok(words)
}
