// The words that the program is started with.
ghost use Rattle.std.specs.Prelude.{◌≡◌, ◌⊎◌, IfErr};
ghost use Rattle.fs_report.specs.declared.cause.Cause.TheVariants as Cause;

use std::env;
use std::io::ErrorKind;
use zenfs_cmd::Cause;

// The words behind the program's name. A word that isn't text makes a bad command line.
pub(crate) fn words_of(rt: HostRuntime) -> Result<Vec<String>, Cause<'static>>
    ensures { IfErr result (λ cause. (cause ≡ Cause.Words) ⊎ (cause ≡ Cause.NoMemory)) }
{
    let mut args = match env::args(&rt) {
        Ok(args) => args,
        Err(error) if error.kind() == ErrorKind::OutOfMemory => return Err(Cause::NoMemory),
        Err(_) => return Err(Cause::Words),
    };
    let _ = args.next();
    let mut words = Vec::new(rt.alloc());
    for word in args {
        words.push(word).map_err(|_| Cause::NoMemory)?;
    }
    Ok(words)
}
