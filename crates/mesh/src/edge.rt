// The number of an edge of a triangle, or of the corner at its near end. A search over the edges goes over 0..3 and makes each by `of`: the definitions search among numbers,
// and one over an array of edges would owe a law from that list to the numbers.
ghost use Rattle.std.specs.Prelude.{◌≡◌, ◌<◌};
ghost use Rattle.mesh.specs.Mesh as Lists;

#[derive(Clone, Copy)]
pub struct Edge {
    pub number: usize,
    pub ghost below: { number < 3 },
}

impl Edge {
    pub fn of(number: usize) -> Edge
        requires { number < 3 }
        ensures { result.number ≡ number }
    {
        Edge { number }
    }

    // The corner at the edge's far end.
    pub fn onward(self) -> Edge
        ensures { result.number ≡ Lists.onward self.number }
    {
        Edge {
            number: (self.number + 1) % 3,
        }
    }
}
