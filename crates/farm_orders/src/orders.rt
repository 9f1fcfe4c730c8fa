//! The lists of orders that racks hand in.
ghost use Rattle.std.specs.Prelude.{◌≡◌, ◌<◌, ◌≤◌, IfOk, IfErr, length};
ghost use Rattle.farm_orders.specs.Limits.{order_limit, rack_limit};
ghost use Rattle.farm_orders.specs.Orders.{before_close};

use crate::limits::{MOST_ORDERS, MOST_RACKS};
use lrc_code::Request;
use std::marker::Model;
use thiserror::Error;

/// An order of a rack: to rebuild a fragment, or to answer no order after this one.
#[derive(Debug, Drop)]
pub enum Order {
    Rebuild(Request),
    Close,
}

/// A rack's list of at most 4,096 orders. Contracts see it as its orders.
#[derive(Debug, Drop)]
pub struct RackList {
    orders: Vec<Order>,
}

impl Model for RackList {
    ghost use Rattle.std.specs.Prelude.{List, length, ◌≤◌};
    ghost use Rattle.farm_orders.specs.declared.orders.Order.{Order};
    ghost use Rattle.farm_orders.specs.Limits.{order_limit};

    ghost Value = { List Order };

    ghost view = { λ r. r.orders.items };

    ghost invariant = { λ r. length r.orders.items ≤ order_limit };
}

/// E26: a list has more than 4,096 orders. They are handed back.
#[derive(Debug, Drop, Error)]
#[error("a rack's list has more than 4096 orders")]
pub struct TooManyOrders {
    pub orders: Vec<Order>,
}

impl RackList {
    /// The list of these orders, in their order. Takes no memory.
    pub fn new(orders: Vec<Order>) -> Result<RackList, TooManyOrders>
        ensures ok { IfOk result (λ r. (r ≡ orders.items) × (length orders.items ≤ order_limit)) }
        ensures refused { IfErr result (λ e. (e.orders ≡ orders) × (order_limit < length orders.items)) }
    {
        if orders.len() > MOST_ORDERS {
            return Err(TooManyOrders { orders });
        }
        Ok(RackList::from_checked(orders))
    }

    /// The list of orders that are known to be few enough: they are not counted again. Takes no memory.
    pub fn from_checked(orders: Vec<Order>) -> RackList
        requires { length orders.items ≤ order_limit }
        ensures { result ≡ orders.items }
    {
        RackList { orders }
    }

    /// The orders.
    pub fn orders(&self) -> &[Order]
        ensures all { result.now ≡ self.now }
        ensures limit { length self.now ≤ order_limit }
    {
        self.orders.as_slice()
    }

    /// The orders, which the list gives up.
    pub fn into_orders(self) -> Vec<Order>
        ensures { result.items ≡ self }
    {
        let RackList { orders } = self;
        orders
    }

    /// The number of requests before the first close, or of all where there is no close. These are served.
    pub fn served(&self) -> usize
        ensures count { result ≡ length (before_close self.now) }
        ensures limit { result ≤ order_limit }
    {
        let mut number = 0;
        for order in self.orders() {
            match order {
                Order::Rebuild(_) => number += 1,
                Order::Close => return number,
            }
        }
        number
    }
}

/// The lists of at most 16 racks, which are numbered from 0. Contracts see them as lists of orders.
#[derive(Debug, Drop)]
pub struct Racks {
    lists: Vec<RackList>,
}

impl Model for Racks {
    ghost use Rattle.std.specs.Prelude.{List, length, ◌≤◌};
    ghost use Rattle.farm_orders.specs.declared.orders.Order.{Order};
    ghost use Rattle.farm_orders.specs.Limits.{rack_limit};

    ghost Value = { List (List Order) };

    ghost view = { λ r. r.lists.items };

    ghost invariant = { λ r. length r.lists.items ≤ rack_limit };
}

/// E18: there are more than 16 racks. Their lists are handed back.
#[derive(Debug, Drop, Error)]
#[error("there are more than 16 racks")]
pub struct TooManyRacks {
    pub lists: Vec<RackList>,
}

impl Racks {
    /// The racks with these lists. Takes no memory.
    pub fn new(lists: Vec<RackList>) -> Result<Racks, TooManyRacks>
        ensures ok { IfOk result (λ r. (r ≡ lists.items) × (length lists.items ≤ rack_limit)) }
        ensures refused { IfErr result (λ e. (e.lists ≡ lists) × (rack_limit < length lists.items)) }
    {
        if lists.len() > MOST_RACKS {
            return Err(TooManyRacks { lists });
        }
        Ok(Racks { lists })
    }

    /// The racks' lists.
    pub fn lists(&self) -> &[RackList]
        ensures all { result.now ≡ self.now }
        ensures limit { length self.now ≤ rack_limit }
    {
        self.lists.as_slice()
    }
}
