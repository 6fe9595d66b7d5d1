// Laws of points, each the contract of a function that does nothing.
ghost use Rattle.art_schedules.specs.points.Laws.{PointsGiveOrders, OrdersGivePoints};

/// Calls with points are linearizable.
pub fn points_give_orders()
    ensures { PointsGiveOrders }
{}

/// Linearizable calls have points. So an order by points is enough for any calls.
pub fn orders_give_points()
    ensures { OrdersGivePoints }
{}
