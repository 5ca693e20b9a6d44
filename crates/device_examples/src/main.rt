//! Plays the script on its standard input, a list of examples of devices, and says of each whether all came out as the script says.
//! The script's own head has the words of its language.
#![tactic(auto)]

mod calls;
mod devices;
mod files;
mod machine;
mod rounds;
mod script;
mod shown;
mod steps;
mod stop;
mod texts;

use machine::Machine;
use script::Script;
use std::alloc::Global;
use std::io;
use steps::play;

// More steps than any script takes, with all of its rounds.
const MOST_STEPS: u32 = 10_000_000;

fn main(rt: HostRuntime) -> io::Result<()> {
    let alloc = rt.alloc();
    let mut script = read_script(&rt, alloc)?;
    play_script(&rt, alloc, &mut script)?;
    say_count(&rt, &script)
}

// Reads the script.
fn read_script(rt: &impl Input, alloc: Global) -> io::Result<Script> {
    let mut script = Script::new(alloc);
    for line in rt.lines(alloc) {
        script.add(line?)?;
    }
    Ok(script)
}

// Plays all of the script, from nothing.
fn play_script(rt: &impl Print, alloc: Global, script: &mut Script) -> io::Result<()> {
    let mut machine = Machine::new(alloc);
    play_lines(rt, alloc, script, &mut machine)
}

// Plays line for line.
fn play_lines(
    rt: &impl Print,
    alloc: Global,
    script: &mut Script,
    machine: &mut Machine,
) -> io::Result<()> {
    for _ in 0..MOST_STEPS {
        if script.is_at_end() {
            break;
        }
        play_line(rt, alloc, script, machine)?;
    }
    Ok(())
}

// Plays a line, and says what is to be said of it.
fn play_line(
    rt: &impl Print,
    alloc: Global,
    script: &mut Script,
    machine: &mut Machine,
) -> io::Result<()> {
    let said = play(alloc, script, machine)?;
    print!(rt; "{said}")
}

// Says how many examples there were, and how many steps came out otherwise.
fn say_count(rt: &impl Print, script: &Script) -> io::Result<()> {
    let count = script.examples;
    let wrong = script.wrong;
    println!(rt; "{count} examples, {wrong} wrong")
}
