//! What a run is given, and what it leaves.
use nr_cli::nrmi;
use nr_outside::{MemFolder, MemSink, MemWire, are_each_once};
use std::alloc::Global;
use std::process::Abort;

/// A class whose `main` returns 2 + 3 in four steps.
pub const M_CLASS: [u8; 105] = [
    0xCA, 0xFE, 0xBA, 0xBE, 0, 0, 0, 50, 0, 8, 1, 0, 1, 77, 7, 0, 1, 1, 0, 16, 106, 97, 118, 97,
    47, 108, 97, 110, 103, 47, 79, 98, 106, 101, 99, 116, 7, 0, 3, 1, 0, 4, 109, 97, 105, 110, 1,
    0, 5, 40, 91, 73, 41, 73, 1, 0, 4, 67, 111, 100, 101, 0, 33, 0, 2, 0, 4, 0, 0, 0, 0, 0, 1, 0,
    9, 0, 5, 0, 6, 0, 1, 0, 7, 0, 0, 0, 16, 0, 2, 0, 1, 0, 0, 0, 4, 5, 6, 0x60, 0xAC, 0, 0, 0, 0,
    0, 0,
];

/// The numbers, from 1, of the calls that fail.
#[derive(Clone, Copy)]
pub struct Scene<'a> {
    pub folder: &'a [u64],
    pub out: &'a [u64],
    pub err: &'a [u64],
}

impl Scene<'static> {
    /// Nothing fails.
    pub const SOUND: Scene<'static> = Scene {
        folder: &[],
        out: &[],
        err: &[],
    };
}

/// What a run leaves.
#[derive(Drop)]
pub struct Outcome {
    pub status: u8,
    pub out: Vec<u8>,
    pub err: Vec<u8>,
    /// How often the folder was called, the output written to and the error output.
    pub calls: (u64, u64, u64),
}

/// A run over files of the folder `d`, each a path and its bytes.
pub fn run_over<R: AllocGlobal + Abort>(
    rt: &R,
    words: &[&str],
    files: &[(&str, &[u8])],
    scene: Scene<'_>,
) -> Outcome {
    let alloc: Global = rt.alloc();
    let mut listed = Vec::new(alloc);
    for (path, bytes) in files {
        let folder = String::from_str(alloc, "d").expect(rt, "a folder");
        let path = String::from_str(alloc, path).expect(rt, "a path");
        let bytes = bytes.to_vec(alloc).expect(rt, "a file");
        listed.push((folder, path, bytes)).expect(rt, "a list");
    }
    assert!(rt; are_each_once(&listed));
    let mut folder = MemFolder::new(listed, scene.folder.to_vec(alloc).expect(rt, "calls"));
    let mut wire = MemWire::new(alloc, Vec::new(alloc), Vec::new(alloc));
    let mut out = MemSink::new(alloc, scene.out.to_vec(alloc).expect(rt, "calls"));
    let mut err = MemSink::new(alloc, scene.err.to_vec(alloc).expect(rt, "calls"));
    let status = nrmi(alloc, words, &mut folder, &mut wire, &mut out, &mut err);
    Outcome {
        status,
        out: out.bytes().to_vec(alloc).expect(rt, "the output"),
        err: err.bytes().to_vec(alloc).expect(rt, "the line"),
        calls: (folder.calls(), out.writes(), err.writes()),
    }
}
