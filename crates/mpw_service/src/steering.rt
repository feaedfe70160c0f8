//! Lets workers wait until a run is begun or cancelled.

use std::sync::{Condvar, Mutex, Wait};
use std::thread;
use std::time::{Clock, Duration};

/// What workers know of the orders that were given.
#[derive(Clone, Copy)]
struct Orders {
    /// Whether workers wait for the first order.
    are_awaited: bool,
    /// Whether the service ends.
    is_over: bool,
    /// How many were given.
    count: u64,
}

/// Lets workers wait for orders: that a run begins, or is cancelled.
#[derive(Drop)]
pub(crate) struct Steering {
    orders: Mutex<Orders>,
    changed: Condvar,
}

impl Steering {
    /// Before the first order, for which workers wait or not.
    pub(crate) fn new(are_awaited: bool) -> Steering {
        Steering {
            orders: Mutex::new(Orders {
                are_awaited,
                is_over: false,
                count: 0,
            }),
            changed: Condvar::new(),
        }
    }

    /// Notes an order: a `run` or a `cancel` was accepted.
    pub(crate) fn note_order<R: Wait>(&self, rt: &R) {
        let mut orders = self.orders.lock(rt);
        orders.are_awaited = false;
        orders.count = orders.count.wrapping_add(1);
        drop(orders);
        self.changed.notify_all();
    }

    /// Lets no worker wait any more.
    pub(crate) fn end<R: Wait>(&self, rt: &R) {
        self.orders.lock(rt).is_over = true;
        self.changed.notify_all();
    }

    /// Waits for the first order, and returns whether it came before the service ended.
    pub(crate) fn await_order<R: Wait>(&self, rt: &R) -> bool {
        let mut orders = self.orders.lock(rt);
        for _ in rt.forever() {
            if !orders.are_awaited {
                return true;
            }
            if orders.is_over {
                return false;
            }
            orders = self.changed.wait(rt, orders);
        }
        unreachable!()
    }

    /// Sleeps for so many seconds, but no longer than to the next order, or to the end of the service.
    pub(crate) fn sleep<R: Wait + Clock>(&self, rt: &R, seconds: u64) {
        let begun = *self.orders.lock(rt);
        for _ in 0..seconds {
            let orders = *self.orders.lock(rt);
            if orders.is_over || orders.count != begun.count {
                return;
            }
            thread::sleep(rt, Duration::from_secs(1));
        }
    }
}
