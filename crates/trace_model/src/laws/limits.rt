//! The limits, each by its value.
ghost use Rattle.std.specs.Prelude.{◌≡◌, ◌^◌};
ghost use Rattle.trace_model.specs.declared.limits.TheConstants.{LINK_FILLS, LINK_PAGES, MAX_CPUS, MAX_FRAMES};
ghost use Rattle.trace_model.specs.declared.limits.TheConstants.{MAX_IMAGE, MAX_INPUT, MAX_PAGES, MAX_SIZE, MIN_PAGES};
ghost use Rattle.trace_model.specs.declared.limits.TheConstants.{MIN_SIZE, MOMENT_LIMIT, START_FILL};

/// Each limit has the value that is stated here; contracts and definitions name it. What else a changed limit touches
/// is listed in `docs/ARCHITECTURE.md`, "Where to change what".
pub fn constants_are()
    ensures min_pages { MIN_PAGES ≡ 2 }
    ensures max_pages { MAX_PAGES ≡ 1024 }
    ensures min_size { MIN_SIZE ≡ 32 }
    ensures max_size { MAX_SIZE ≡ 65520 }
    ensures max_image { MAX_IMAGE ≡ 65536 }
    ensures max_cpus { MAX_CPUS ≡ 256 }
    ensures max_frames { MAX_FRAMES ≡ 4 }
    ensures max_input { MAX_INPUT ≡ 268435456 }
    ensures moment_limit { MOMENT_LIMIT ≡ 2 ^ 59 }
    ensures start_fill { START_FILL ≡ 0 }
    ensures link_pages { LINK_PAGES ≡ 2 ^ 14 }
    ensures link_fills { LINK_FILLS ≡ 2 ^ 48 }
{}
