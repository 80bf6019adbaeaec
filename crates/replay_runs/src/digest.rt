// Digests of lists: each number's pattern is put in by an exclusive or, after a rotation of what is there by five places.

fn with(digest: u64, x: f64) -> u64 {
    digest.rotate_left(5) ^ text::pattern(x)
}

pub fn all(list: &[f64]) -> u64 {
    list.iter().fold(0, |digest, x| with(digest, *x))
}
