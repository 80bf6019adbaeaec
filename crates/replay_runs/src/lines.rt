// What is printed of a sheet and its calls.
use refusal::Refusal;
use std::io;
use work::Run;

pub fn refused(rt: &impl Print, refusal: Refusal) -> io::Result<()> {
    println!(rt; "{refusal}")
}

// Place, passes, both ends by their numbers, how many norms and points.
fn stand(rt: &impl Print, run: Run) -> io::Result<()> {
    let Run { stand, passes, .. } = run;
    print!(rt;
        "place {} passes {passes} ends {} {}",
        stand.place, stand.end, stand.walk.end
    )?;
    print!(rt; " norms {} points {}", stand.norms, stand.walk.points)
}

// The refusals of the calls, 0 for none: a list of calls is answered by their numbers.
fn refusals(rt: &impl Print, said: &[u32]) -> io::Result<()> {
    for number in said {
        print!(rt; " {number}")?;
    }
    Ok(())
}

fn hex(rt: &impl Print, list: &[f64]) -> io::Result<()> {
    let digest = crate::digest::all(list);
    print!(rt; " {digest:016x}")
}

// The digests of the field, the norms, the gradients and the points. A run is shown of the two buffers that its lists stand in, in these two functions alone.
fn digests(rt: &impl Print, run: Run, floats: &[f64], path: &[f64]) -> io::Result<()> {
    hex(rt, run::field(run, floats))?;
    hex(rt, run::norms(run, floats))?;
    hex(rt, run::gradients(run, floats))?;
    hex(rt, run::points(run, path))
}

pub fn opened(
    rt: &impl Print,
    run: Run,
    said: &[u32],
    floats: &[f64],
    path: &[f64],
) -> io::Result<()> {
    stand(rt, run)?;
    print!(rt; " said")?;
    refusals(rt, said)?;
    digests(rt, run, floats, path)?;
    println!(rt; "")
}
