//! Plans of a crew by boxes: the cutting styles and schedules to try, by the model's size.
ghost use Rattle.std.specs.Prelude.{◌≡◌, IfOk, length};
ghost use Rattle.nano_spec.specs.Profile.{full_profile};
ghost use Rattle.plan_choice.specs.Better.{CanImprove, MayStandFor};

use crate::alone::is_void;
use crate::bounds::Bounds;
use crate::trials::{Trial, cheapest};
use box_plans::{BoxManner, CutStyle, Prices};
use nano_spec::Profile;
use plan_tape::Plan;
use std::alloc::Global;
use vox_geom::{MOST_R, Memory};
use vox_planes::Planes;

/// Up to this resolution all variants are tried.
const SMALL: u16 = 100;

/// Up to this resolution some variants are tried.
const MEDIUM: u16 = 160;

/// Up to this resolution a few variants are tried, and above it two.
const LARGE: u16 = 210;

/// Boxes of one layer.
const FLAT: Prices = Prices {
    of: [2000, 5000, 22000, 50000],
    thick: false,
    guarded: true,
    shaft: 6000,
    bare: false,
};

/// Thick boxes whose teams are sure to have neighboring columns.
const GUARDED: Prices = Prices {
    thick: true,
    ..FLAT
};

/// Thick boxes anywhere; those without neighboring columns are split.
const FREE: Prices = Prices {
    guarded: false,
    ..GUARDED
};

/// One box at a time, the nearest first, whatever its height.
const PLAIN: BoxManner = BoxManner {
    cutting: CutStyle::Exact(FLAT),
    window: 1000,
    big: 0,
    extra: 0,
    look: false,
    gathers: true,
};

/// One layer at a time, and several boxes from one stop.
const CLAIMS: BoxManner = BoxManner {
    extra: 4,
    look: true,
    ..PLAIN
};

/// Thick boxes whose teams are sure to have neighboring columns.
const BY_GUARDS: BoxManner = BoxManner {
    cutting: CutStyle::Exact(GUARDED),
    ..PLAIN
};

/// The same with several from one stop.
const BY_GUARDED_CLAIMS: BoxManner = BoxManner {
    extra: 3,
    look: true,
    ..BY_GUARDS
};

/// Thick boxes anywhere, low ones first.
const BY_FREE: BoxManner = BoxManner {
    cutting: CutStyle::Exact(FREE),
    window: 12,
    ..PLAIN
};

/// Thick boxes that nothing has to wait for, low ones first.
const BY_SIDES: BoxManner = BoxManner {
    cutting: CutStyle::Exact(Prices {
        of: [2000, 5000, 18000, 40000],
        bare: true,
        ..GUARDED
    }),
    window: 30,
    ..PLAIN
};

/// Cheap thick boxes anywhere, low ones first, and several from one stop.
const BY_MANY: BoxManner = BoxManner {
    cutting: CutStyle::Exact(Prices {
        of: [1400, 4600, 11000, 30000],
        ..FREE
    }),
    window: 12,
    ..CLAIMS
};

/// Boxes of one layer, large teams first.
const BY_LARGE: BoxManner = BoxManner {
    cutting: CutStyle::Exact(Prices {
        of: [2500, 5000, 24000, 50000],
        ..FLAT
    }),
    big: 3,
    ..PLAIN
};

/// Variants to build a small model.
const SMALL_UP: [Trial; 7] = [
    Trial::Boxes(BY_GUARDS),
    Trial::Boxes(BY_GUARDED_CLAIMS),
    Trial::Boxes(BY_FREE),
    Trial::Boxes(BY_SIDES),
    Trial::Boxes(BoxManner {
        window: 30,
        extra: 0,
        look: false,
        ..BY_MANY
    }),
    Trial::Boxes(CLAIMS),
    Trial::Boxes(BoxManner {
        look: true,
        ..PLAIN
    }),
];

/// Variants to build a model of medium size.
const MEDIUM_UP: [Trial; 6] = [
    Trial::Boxes(BY_GUARDS),
    Trial::Boxes(BY_GUARDED_CLAIMS),
    Trial::Boxes(CLAIMS),
    Trial::Boxes(BY_FREE),
    Trial::Boxes(BY_MANY),
    Trial::Boxes(BY_LARGE),
];

/// Variants to build a large model. Squads of four are best for a box, and give up at once on any other model.
const LARGE_UP: [Trial; 4] = [
    Trial::Fours(MOST_R, false),
    Trial::Boxes(BY_MANY),
    Trial::Boxes(CLAIMS),
    Trial::Boxes(BY_GUARDS),
];

/// Variants to build a model of the greatest size.
const HUGE_UP: [Trial; 3] = [
    Trial::Fours(MOST_R, false),
    Trial::Boxes(CLAIMS),
    Trial::Boxes(BY_MANY),
];

/// Tiles as wide as possible.
const TILES: BoxManner = BoxManner {
    cutting: CutStyle::Tiles(31, 0),
    ..PLAIN
};

/// Tiles of the size with the fewest estimated steps, large teams first.
const BEST_TILES: BoxManner = BoxManner {
    cutting: CutStyle::BestTiles,
    big: 3,
    ..PLAIN
};

/// Variants to take a small model down.
const SMALL_DOWN: [Trial; 5] = [
    Trial::Boxes(TILES),
    Trial::Boxes(BEST_TILES),
    Trial::Boxes(BY_GUARDS),
    Trial::Boxes(BoxManner {
        window: 12,
        ..TILES
    }),
    Trial::Boxes(BoxManner {
        cutting: CutStyle::Tiles(31, 1),
        big: 3,
        ..PLAIN
    }),
];

/// Variants to take a model of medium size down.
const MEDIUM_DOWN: [Trial; 6] = [
    Trial::Boxes(TILES),
    Trial::Boxes(BEST_TILES),
    Trial::Boxes(BoxManner {
        window: 12,
        ..TILES
    }),
    Trial::Boxes(BoxManner {
        cutting: CutStyle::Tiles(31, 1),
        big: 3,
        ..PLAIN
    }),
    Trial::Boxes(BoxManner {
        cutting: CutStyle::Tiles(24, 0),
        ..PLAIN
    }),
    Trial::Boxes(BY_GUARDS),
];

/// Variants to take a large model down.
const LARGE_DOWN: [Trial; 3] = [
    Trial::Boxes(TILES),
    Trial::Boxes(BEST_TILES),
    Trial::Boxes(BoxManner {
        window: 12,
        ..TILES
    }),
];

/// Variants to take a model of the greatest size down.
const HUGE_DOWN: [Trial; 2] = [Trial::Boxes(TILES), Trial::Boxes(BEST_TILES)];

/// Returns the plan, or a crew's plan by boxes that builds from nothing or voids everything, if it is cheaper and within the
/// bounds. A plan of one command, a Halt alone, is returned as it is.
pub(crate) fn by_boxes(
    alloc: Global,
    source: &Planes,
    target: &Planes,
    plan: Plan,
    most: Bounds,
) -> Result<Plan, Memory>
    requires { CanImprove source.now target.now full_profile plan }
    ensures stands { IfOk result (λ it. MayStandFor source.now target.now full_profile most plan it) }
    ensures alone { length plan.commands ≡ 1 → IfOk result (λ it. it.commands ≡ plan.commands) }
{
    let is_alone = plan.commands.as_slice().len() == 1;
    if is_alone || (!is_void(source) && !is_void(target)) {
        return Ok(plan);
    }
    let ceiling = plan.energy;
    let r = source.resolution();
    let up = is_void(source);
    let trials = if r <= SMALL && up {
        SMALL_UP.as_slice()
    } else if r <= SMALL {
        SMALL_DOWN.as_slice()
    } else if r <= MEDIUM && up {
        MEDIUM_UP.as_slice()
    } else if r <= MEDIUM {
        MEDIUM_DOWN.as_slice()
    } else if r <= LARGE && up {
        LARGE_UP.as_slice()
    } else if r <= LARGE {
        LARGE_DOWN.as_slice()
    } else if up {
        HUGE_UP.as_slice()
    } else {
        HUGE_DOWN.as_slice()
    };
    let profile = Profile::full();
    cheapest(alloc, source, target, profile, plan, trials, most, ceiling)
}
