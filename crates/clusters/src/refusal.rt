// What a refusal looks like in print.
use store::StoreFault;

pub fn show_refusal(rt: &HostRuntime, what: &str, fault: StoreFault) -> anyhow::Result<()> {
    println!(rt; "  {what}: refused {fault}")?;
    Ok(())
}
