// What a run shows of its path.
ghost use Rattle.std.specs.Prelude.{◌≡◌};
ghost use Rattle.pde.specs.Path.{length_of};
ghost use Rattle.image.specs.Points.{points_of};

use work::Run;

// The filled points, x and y of each, as a part of the lent path buffer. A record may hold any count, whose double need not fit: so the count is compared with half the length.
pub fn points(run: Run, path: &[f64]) -> &[f64]
    ensures { result.now ≡ points_of run path.now }
{
    let count = run.stand.walk.points;
    if path.len() / 2 < count {
        return &path[..0];
    }
    let end = 2 * count;
    &path[..end]
}

// The distances of successive points, summed from the left from +0.
pub fn length(path: &[f64]) -> f64
    ensures { result ≡ length_of path.now }
{
    tracing::path::length(path)
}
