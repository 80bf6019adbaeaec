// The gradient of a field on each triangle.
#![tactic(auto)]

ghost use Rattle.std.specs.Prelude.{◌≡◌, ◌*◌, ◌<◌, length};
ghost use Rattle.gradient.specs.Gradient.{triangle_gradient, gradient_on, gradients};
ghost use Rattle.mesh.specs.Mesh.{triangle_count};

use mesh::{Field, Slope};
use plane::Point;

// The gradient of the field that is ui, uj, uk at a triangle's corners; (0, 0) where twice its area is below `flat` in magnitude.
// Corners and values are parameters of their own: the definition names each number, and an array would be indexed in each clause.
pub fn triangle_gradient(
    flat: f64,
    vi: Point,
    vj: Point,
    vk: Point,
    ui: f64,
    uj: f64,
    uk: f64,
) -> Point
    ensures { result ≡ triangle_gradient flat vi vj vk ui uj uk }
{
    let si = Slope::facing(vj, vk);
    let sj = Slope::facing(vk, vi);
    let sk = Slope::facing(vi, vj);
    let area2 = si.area2(sj);
    if binary64::abs(area2) < flat {
        return Point { x: 0.0, y: 0.0 };
    }
    Point {
        x: (si.b * ui + sj.b * uj + sk.b * uk) / area2,
        y: (si.c * ui + sj.c * uj + sk.c * uk) / area2,
    }
}

// The gradient on triangle t.
pub fn gradient_in(field: &Field, flat: f64, t: usize) -> Point
    requires { t < triangle_count field.now.mesh.triangles.now }
    ensures { result ≡ gradient_on flat field.now.mesh.vertices.now field.now.values.now field.now.mesh.triangles.now t }
{
    let ([vi, vj, vk], [ui, uj, uk]) = field.on(t);
    triangle_gradient(flat, vi, vj, vk, ui, uj, uk)
}

// The gradients on all triangles, by their numbers: of a slice that is written through its chunks only the length is known.
pub fn compute_gradient_field(field: &Field, flat: f64, out: &mut [f64])
    requires { length out.old ≡ 2 * triangle_count field.now.mesh.triangles.now }
    ensures { out.new ≡ gradients flat field.now.mesh.vertices.now field.now.values.now field.now.mesh.triangles.now }
{
    for t in 0..field.mesh.triangle_count() {
        let g = gradient_in(field, flat, t);
        out[2 * t] = g.x;
        out[2 * t + 1] = g.y;
    }
}
