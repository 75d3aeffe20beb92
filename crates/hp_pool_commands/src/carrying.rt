//! A workload over what carries its calls.
ghost use Rattle.std.specs.Prelude.{◌≡◌, IfOk, IfErr};
ghost use Rattle.hp_base.specs.Text.{sizes};
ghost use Rattle.hp_client.specs.Tables.{sizes_of};
ghost use Rattle.hp_pool_commands.specs.Working.{IsRun, IsStopped};

use hp_base::Config;
use hp_client::{
    ClientFault, CoreDriver, Crew, PoolDriver, Report, Workload, config_of, run_workload,
};
use hp_shared::Open;
use std::alloc::Global;
use std::marker::Brand;
use std::sync::Wait;
use std::sync::ledger::{Blank, Ledger};
use std::thread::Threads;

/// What carries a workload's calls.
#[derive(Clone, Copy, Debug, PartialEq, Eq)]
pub(crate) enum Carrier {
    /// A driver that has a core to itself.
    Core,
    /// A driver of a running pool, which makes each call of a round in a thread of its own.
    Pool,
}

fn run_on_core(alloc: Global, workload: Workload) -> Result<Report, ClientFault>
    ensures ok { IfOk result (λ report. IsRun Carrier.Core workload report) }
    ensures err { IfErr result (λ fault. IsStopped Carrier.Core workload fault) }
{
    let mut driver = CoreDriver::open(alloc, config_of(workload))?;
    run_workload(alloc, workload, &mut driver)
}

fn run_on_pool<L: Ledger + Send + Sync, H: Threads + Wait + Sync>(
    rt: &H,
    alloc: Global,
    blank: Blank,
    config: Config,
    workload: Workload,
) -> Result<Report, ClientFault>
    requires name { blank.name ≡ L.name }
    requires parts { (blank.parts ≡ L.parts) × (blank.parts ≡ config.tasks) }
    requires config { sizes config ≡ sizes_of workload }
    ensures ok { IfOk result (λ report. IsRun Carrier.Pool workload report) }
    ensures err { IfErr result (λ fault. IsStopped Carrier.Pool workload fault) }
{
    let crew = Crew::<L, Open>::open(alloc, blank, config, Open)?;
    let mut driver = PoolDriver::new(
        alloc,
        rt,
        crew,
        |crew: &mut Crew<L, Open>, rt: &H| crew.run(rt),
    );
    run_workload(alloc, workload, &mut driver)
}

/// Runs a workload over a new pool of its sizes.
pub(crate) fn run_on<H: Threads + Wait + Sync>(
    rt: &H,
    alloc: Global,
    carrier: Carrier,
    workload: Workload,
) -> Result<Report, ClientFault>
    ensures ok { IfOk result (λ report. IsRun carrier workload report) }
    ensures err { IfErr result (λ fault. IsStopped carrier workload fault) }
{
    match carrier {
        Carrier::Core => run_on_core(alloc, workload),
        Carrier::Pool => {
            let config = config_of(workload);
            let blank = Blank::new(u64::from(config.tasks));
            run_on_pool::<Brand, H>(rt, alloc, blank, config, workload)
        }
    }
}
