// A configuration, read from its file.
ghost use Rattle.std.specs.Prelude.{◌≡◌, ◌≤◌, ◌⊎◌, IfErr, IfOk, MatchResult, length, option_map};
ghost use Rattle.rx_config.specs.Configurations.{settings_of};
ghost use Rattle.rx_program.specs.Programs.{Configures, LacksConfig};

use crate::program::program_fault::ProgramFault;
use rx_config::{Config, read_config};
use rx_heap::{Heap, Memory};
use std::fs::File;
use std::io::Read;
use std::rt::Files;

/// The most bytes of a configuration.
const MAX_CONFIG: u64 = 65_536;

/// The configuration in the file of this path; None: the standard one.
pub(crate) fn config_at<F: Files + AllocGlobal>(
    rt: &F,
    heap: &Heap,
    path: Option<&str>,
) -> Result<Config, ProgramFault>
    ensures { MatchResult result (λ config. Configures (option_map (λ s. s.now) path.entry) (settings_of config)) (LacksConfig (option_map (λ s. s.now) path.entry)) }
{
    let Ok(alloc) = heap.clone() else {
        return Err(ProgramFault::Memory);
    };
    let Some(path) = path else {
        return match Config::standard(alloc) {
            Ok(config) => Ok(config),
            Err(Memory) => Err(ProgramFault::Memory),
        };
    };
    let bytes = match read_file(rt, heap, path) {
        Ok(bytes) => bytes,
        Err(fault) => return Err(fault),
    };
    match read_config(alloc, rt.alloc(), bytes.as_slice()) {
        Ok(config) => Ok(config),
        Err(cause) => Err(ProgramFault::Config(cause)),
    }
}

/// The bytes of the file of this path.
pub(crate) fn read_file<F: Files>(
    rt: &F,
    heap: &Heap,
    path: &str,
) -> Result<Vec<u8, Heap>, ProgramFault>
    ensures within { IfOk result (λ bytes. length bytes.items ≤ 65536) }
    ensures fault { IfErr result (λ fault. (fault ≡ ProgramFault.NoConfig) ⊎ (fault ≡ ProgramFault.Memory)) }
{
    let Ok(alloc) = heap.clone() else {
        return Err(ProgramFault::Memory);
    };
    let Ok(file) = File::open(rt, path) else {
        return Err(ProgramFault::NoConfig);
    };
    let mut bytes = Vec::new(alloc);
    match file.take(MAX_CONFIG + 1).read_to_end(&mut bytes) {
        Ok(_) if bytes.len() as u64 <= MAX_CONFIG => Ok(bytes),
        _ => Err(ProgramFault::NoConfig),
    }
}
