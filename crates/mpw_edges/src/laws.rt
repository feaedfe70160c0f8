//! Laws about what the definitions say is found. Each function does nothing; its contract is the law.

ghost use Rattle.mpw_edges.specs.Laws.{ExchangeExchangesAxes, WindowDecides};
ghost use Rattle.mpw_edges.specs.Computed.{TestDecidesPairSteps};

/// Exchanging the coordinates of the layout and the core exchanges the axes of what is found.
pub fn exchange_exchanges_axes()
    ensures { ExchangeExchangesAxes }
{}

/// What a core finds depends only on the squares of its window: the core, extended on each side by
/// the greatest distance plus 1.
pub fn window_decides()
    ensures { WindowDecides }
{}

/// The computed test of whether two edges are a pair step is true exactly if they are.
pub fn test_decides_pair_steps()
    ensures { TestDecidesPairSteps }
{}
