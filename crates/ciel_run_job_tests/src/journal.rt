// What a journal of the two squares says, by names and marks that were computed apart from the program.

use ciel_master::entry::Entry;
use ciel_run_job::draws::state_after;
use sky_base::name::Name;
use sky_base::object::TaskId;

/// The names of the main call, and of the calls of `f` of 3 and of 4.
pub(crate) static MAIN: [u8; 20] = [
    79, 147, 49, 250, 1, 250, 255, 158, 132, 132, 243, 196, 228, 1, 233, 33, 181, 112, 22, 107,
];

pub(crate) static OF_THREE: [u8; 20] = [
    139, 141, 160, 35, 64, 84, 241, 76, 29, 115, 198, 84, 108, 195, 176, 234, 200, 160, 192, 29,
];

pub(crate) static OF_FOUR: [u8; 20] = [
    39, 161, 11, 148, 183, 204, 135, 160, 25, 76, 218, 38, 9, 27, 154, 196, 203, 44, 87, 29,
];

// The marks of 25, 9 and 16.
static SUM: [u8; 20] = [
    173, 230, 65, 193, 198, 83, 140, 132, 255, 121, 201, 212, 142, 98, 54, 141, 53, 5, 40, 209,
];

static NINE: [u8; 20] = [
    12, 153, 96, 82, 106, 210, 70, 3, 120, 212, 25, 231, 147, 185, 206, 214, 99, 65, 250, 45,
];

static SIXTEEN: [u8; 20] = [
    211, 0, 183, 42, 131, 191, 6, 99, 75, 204, 80, 154, 66, 201, 202, 218, 41, 148, 240, 230,
];

// Whether this is the mark of what the task of this name makes.
fn is_mark(name: Name, mark: &[u8; 20]) -> bool {
    if name == Name::short(MAIN) {
        return *mark == SUM;
    }
    if name == Name::short(OF_THREE) {
        return *mark == NINE;
    }
    name == Name::short(OF_FOUR) && *mark == SIXTEEN
}

fn are_marks(made: &[(Name, [u8; 20])]) -> bool {
    for (name, mark) in made {
        if !is_mark(*name, mark) {
            return false;
        }
    }
    true
}

/// Whether each object that was made is the one that its task makes.
pub(crate) fn objects_are_right(journal: &[Entry]) -> bool {
    for entry in journal {
        if let Entry::Done { made, .. } = entry
            && !are_marks(made.as_slice())
        {
            return false;
        }
    }
    true
}

/// How many objects were made.
pub(crate) fn count_objects(journal: &[Entry]) -> usize {
    let mut count = 0usize;
    for entry in journal {
        if let Entry::Done { made, .. } = entry {
            count = count.saturating_add(made.len());
        }
    }
    count
}

/// Whether the tasks that were started are these, each from this wait and in this order. Other entries are passed over.
pub(crate) fn starts_are(journal: &[Entry], want: &[(TaskId, u32)]) -> bool {
    let mut next = 0usize;
    for entry in journal {
        if let Entry::Start { task, from, .. } = entry {
            match want.get(next) {
                Some(start) if start.0 == *task && start.1 == *from => {}
                _ => return false,
            }
            next = next.saturating_add(1);
        }
    }
    next == want.len()
}

// The first states from seed 0, computed apart.
#[test]
fn the_generator_goes_on_from_its_seed(rt: HostRuntime) {
    assert_eq!(rt; state_after(0, 0), 0);
    assert_eq!(rt; state_after(0, 1), 1_442_695_040_888_963_407);
    assert_eq!(rt; state_after(0, 2), 1_876_011_003_808_476_466);
    assert_eq!(rt;
        state_after(18_446_744_073_709_551_615, 1_000),
        2_590_738_312_200_969_575
    );
}
