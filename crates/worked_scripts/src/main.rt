//! Runs `ngx replay` on each of the scripts that its words name, one after another, and prints the exit status after
//! each.
#![tactic(auto)]

use memory_links::MemoryLinks;
use memory_outside::FixedClock;
use ngx_cli::ngx;
use ngx_pattern::CrateMaker;
use std::alloc::Global;
use std::process::ExitCode;
use std::{env, io};
use std_outside::{HostFiles, HostSink};

/// The exit status where memory runs out.
const OUT_OF_MEMORY: u8 = 7;

// The words of a replay of a script.
fn words_for(alloc: Global, script: String) -> io::Result<Vec<String>> {
    let mut words = Vec::new(alloc);
    words.push(String::from_str(alloc, "ngx")?)?;
    words.push(String::from_str(alloc, "replay")?)?;
    words.push(script)?;
    Ok(words)
}

fn main(rt: HostRuntime) -> io::Result<ExitCode> {
    let alloc = rt.alloc();
    let Ok(mut files) = HostFiles::new(rt.clone()?) else {
        return Ok(ExitCode::from(OUT_OF_MEMORY));
    };
    let mut out = HostSink::new(rt.clone()?);
    for script in env::args(&rt)?.skip(1) {
        println!(rt; "-- {script}")?;
        let words = words_for(alloc, script)?;
        let mut links = MemoryLinks::new(alloc, Vec::new(alloc), Vec::new(alloc));
        let mut clock = FixedClock { moment: 0 };
        let mut maker = CrateMaker::new();
        let status = ngx(
            alloc, &words, &mut files, &mut links, &mut clock, &mut maker, &mut out,
        );
        println!(rt; "-- status {status}")?;
    }
    Ok(ExitCode::SUCCESS)
}
