//! Laws of what the files say.
ghost use Rattle.door_users.specs.Laws.{FilesDecide};

/// A client with a user name is admitted only where the name stands in the file of users with the hash of its password; what each client may do is what
/// the rules of the file of permissions come to for it; and without that file all.
pub fn files_decide()
    ensures { FilesDecide }
{}
