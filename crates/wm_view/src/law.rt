// A law of views, which the crates above cite: the contract of the function is the law, and it does nothing.
ghost use Rattle.wm_view.specs.Law.{ViewsAgree};

/// Law: what the machine's configuration shows is what the configuration of the reduction shows for which it stands,
/// over whatever store.
pub fn views_agree()
    ensures agree { ViewsAgree }
{}
