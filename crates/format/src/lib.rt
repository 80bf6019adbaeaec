// The archive's sheet format (document 01, section Sheet): what a sheet's settings are, and its numbers one by one.
#![tactic(auto)]

ghost use Rattle.std.specs.Prelude.{◌≡◌, ◌/◌, length};

pub mod bytes;
pub mod faults;
pub mod items;

// Tags and −1 are numbers of the file: they stay numbers, and each is tested as such. A setting's kind is a number only until it is read.

pub const MAX_VERTICES: usize = 4096;

pub const MAX_TRIANGLES: usize = 8192;

pub const MAX_SETTINGS: usize = 6;

pub const MAX_TAG: u8 = 2;

pub const MAX_LIMIT: u64 = 100000;

pub const MAX_ROOM: u64 = 1000000;

// −1 as a u32
pub const NO_NEIGHBOUR: u32 = 4294967295;

// The six settings; x and y are the start's. By default none is given.
#[derive(Clone, Copy, Debug, Default, PartialEq)]
pub struct Settings {
    pub limit: Option<u64>,
    pub tolerance: Option<f64>,
    pub step: Option<f64>,
    pub x: Option<f64>,
    pub y: Option<f64>,
    pub room: Option<u64>,
}

// What an item of section 5 says.
#[derive(Clone, Copy, Debug, PartialEq)]
pub enum Setting {
    Limit(u64),
    Tolerance(f64),
    Step(f64),
    StartX(f64),
    StartY(f64),
    Room(u64),
}

// What a sheet is written of: the flat lists of its numbers, and its settings.
#[derive(Clone, Copy)]
pub struct Content<'a> {
    pub vertices: &'a [f64],
    pub triangles: &'a [u32],
    pub neighbours: &'a [u32],
    pub tags: &'a [u8],
    pub settings: Settings,
}

impl<'a> Content<'a> {
    // How many vertices and triangles there are.
    pub fn vertex_count(&self) -> usize
        ensures { result ≡ length self.now.vertices.now / 2 }
    {
        self.vertices.len() / 2
    }

    pub fn triangle_count(&self) -> usize
        ensures { result ≡ length self.now.triangles.now / 3 }
    {
        self.triangles.len() / 3
    }
}
