//! What holds of every order of servers.

ghost use Rattle.std.specs.Prelude.{◌≡◌, ◌<◌, ◌+◌, ◌≤◌, ◌*◌, ℕ, All, IsPermutation, length};
ghost use Rattle.std.specs.List.{range_with_len};
ghost use Rattle.stub_servers.specs.Servers.{Servers};
ghost use Rattle.stub_servers.specs.ServerList.{order_at};

/// An order has the place of each server once.
pub fn orders_have_each_server_once()
    ensures once { (now : ℕ) (list : Servers)
        → IsPermutation (range_with_len 0 (length list.servers)) (order_at now list) }
    ensures length { (now : ℕ) (list : Servers) → length (order_at now list) ≡ length list.servers }
    ensures within { (now : ℕ) (list : Servers)
        → All (λ place. place < length list.servers) (order_at now list) }
{}
