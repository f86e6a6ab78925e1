// A case file's layout and its calls as numbers.
ghost use Rattle.std.specs.Prelude.{◌≡◌};
ghost use Rattle.as_numbers.specs.Files.{parts_of, step_fields};

use answers::Refusal;
use case_file::{Call, Layout};

// Code 0 and where the parts of a sound file stand, each list's first byte behind its count; or code 11 and else 0.
#[repr(C)]
#[derive(Clone, Copy, Default)]
pub struct Parts {
    pub code: u8,
    pub height: usize,
    pub width: usize,
    pub walls_at: usize,
    pub walls_count: usize,
    pub clues_at: usize,
    pub clues_count: usize,
    pub calls_at: usize,
    pub calls_count: usize,
}

// Code 0, a call's kind (0 undo, 1 Connected, 2 Wall, 3 ask), a decide's border and the byte behind the call; or code 11 and
// else 0.
#[repr(C)]
#[derive(Clone, Copy, Default)]
pub struct CallFields {
    pub code: u8,
    pub kind: u8,
    pub border: usize,
    pub behind: usize,
}

impl From<Result<Layout, Refusal>> for Parts {
    ghost from_gives = { λ file parts. parts ≡ parts_of file };

    fn from(file: Result<Layout, Refusal>) -> Parts {
        match file {
            Ok(layout) => Parts {
                code: 0,
                height: layout.height,
                width: layout.width,
                walls_at: layout.walls.at,
                walls_count: layout.walls.count,
                clues_at: layout.clues.at,
                clues_count: layout.clues.count,
                calls_at: layout.calls.at,
                calls_count: layout.calls.count,
            },
            Err(refusal) => Parts {
                code: u8::from(refusal),
                ..Parts::default()
            },
        }
    }
}

impl From<Option<(Call, usize)>> for CallFields {
    ghost from_gives = { λ step fields. fields ≡ step_fields step };

    fn from(step: Option<(Call, usize)>) -> CallFields {
        let Some((call, behind)) = step else {
            return CallFields {
                code: u8::from(Refusal::UnsoundFile),
                ..CallFields::default()
            };
        };
        let (kind, border) = match call {
            Call::Undo => (0, 0),
            Call::Decide(border, wall) => (1 + u8::from(wall), border),
            Call::Ask => (3, 0),
        };
        CallFields {
            code: 0,
            kind,
            border,
            behind,
        }
    }
}
