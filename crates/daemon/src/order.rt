//! The order in which daemons name the nodes; no code.
ghost use Rattle.daemon.specs.Orders.{RobinOrder, ScriptOrder};

/// Carries the order of round robins and of scripts, over any number of askings.
pub fn orders_stand()
    ensures robin { RobinOrder }
    ensures script { ScriptOrder }
{}
