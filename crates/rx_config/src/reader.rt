// The settings that the bytes of a TOML text say: each part of them is read from its table by the keys that stand there.
ghost use Rattle.std.specs.Prelude.{◌≡◌, ◌≢◌, ◌⊎◌, IfErr, IfOk, MatchResult, Err, Ok};
ghost use Rattle.toml.specs.View.{table_view};
ghost use Rattle.rx_config.specs.Configurations.{IsRefused, Says, settings_in, settings_of};

pub(crate) mod crew;
pub(crate) mod fault;
pub(crate) mod http_section;
pub(crate) mod limits;
pub(crate) mod pool;
pub(crate) mod subject_entry;
pub(crate) mod subject_kind;
pub(crate) mod subject_list;
pub(crate) mod texts;

use crate::config::Config;
use crate::config_error::ConfigError;
use crate::keys::TOP_KEYS;
use crate::keys::section::Section;
use crate::reader::fault::Fault;
use crate::reader::http_section::http_at;
use crate::reader::pool::Pool;
use crate::reader::subject_list::subjects_at;
use rx_heap::Heap;
use std::alloc::Global;
use toml::Table;

/// The configuration that a TOML text says.
///
/// The settings are held in memory of `alloc`. The budgets of subjects are counted over the memory of the runtime; the table of
/// the text, which is let go before the call returns, takes that too, as `toml` has no other.
///
/// # Errors
///
/// The first cause that holds, in the order of [`ConfigError`].
pub fn read_config(alloc: Heap, runtime: Global, bytes: &[u8]) -> Result<Config, ConfigError>
    ensures { MatchResult result (λ config. Says bytes.now (Ok (settings_of config))) (IsRefused bytes.now) }
{
    match toml::table_from_slice(runtime, bytes) {
        Ok(table) => config_in(alloc, runtime, &table),
        Err(fault) if fault.is_memory() => Err(ConfigError::Memory),
        Err(_) => Err(ConfigError::Syntax),
    }
}

// The configuration of a table.
fn config_in(alloc: Heap, runtime: Global, table: &Table) -> Result<Config, ConfigError>
    ensures ok { IfOk result (λ config. settings_in (table_view table.now) ≡ Ok (settings_of config)) }
    ensures refused { IfErr result (λ cause. (cause ≡ ConfigError.Memory) ⊎ (settings_in (table_view table.now) ≡ Err cause)) }
    ensures read { IfErr result (λ cause. cause ≢ ConfigError.Syntax) }
{
    let section = Section::of(table);
    if !section.has_only(&TOP_KEYS, None) {
        return Err(ConfigError::UnknownKey);
    }
    let Some(pool) = Pool::at(&section) else {
        return Err(ConfigError::BadPool);
    };
    let http = match http_at(&alloc, &section) {
        Ok(http) => http,
        Err(Fault::Refused) => return Err(ConfigError::BadHttp),
        Err(Fault::Memory) => return Err(ConfigError::Memory),
    };
    match subjects_at(&alloc, runtime, &section) {
        Err(cause) => Err(cause),
        Ok(subjects) => Ok(Config {
            subjects,
            drainers: pool.crew.drainers,
            workers: pool.crew.workers,
            window: pool.crew.window,
            connections: pool.connections,
            stall: pool.stall,
            waiting: pool.waiting,
            idle: pool.idle,
            takeover: pool.takeover,
            http,
        }),
    }
}
